// Examples of lists: bonds of no, one and 64 points, points that stand in no group, marks, the order, as many groups as a
// list can have and one more, and the list's memory.
#![tactic(auto)]

ghost use Rattle.std.specs.Prelude.{◌≤◌, length};

#[cfg(test)]
mod drawn;

#[cfg(test)]
mod tests {
    use crate::drawn::Drawn;
    use groups::{ListFault, list_groups};
    use refusals::Refusal;
    use std::process::Abort;

    const ALL: u64 = u64::MAX;

    // A triangle of 0, 1 and 2, the pairs of 2 and 3 and of 0 and 4, and 5 by itself.
    const SIX: [u64; 6] = [0b010111, 0b000111, 0b001111, 0b001100, 0b010001, 0b100000];

    // 64 points that are paired with themselves only. Its rows are its groups.
    fn each_alone() -> [u64; 64] {
        let mut rows = [0; 64];
        for (p, row) in rows.iter_mut().enumerate() {
            *row = 1 << p;
        }
        rows
    }

    // Eight times two points that are not paired with one another, and with all others: 256 groups of eight points.
    fn eight_twos() -> [u64; 17] {
        let mut rows = [0; 17];
        for i in 0..8 {
            rows[2 * i] = 0xffff ^ 2 << (2 * i);
            rows[2 * i + 1] = 0xffff ^ 1 << (2 * i);
        }
        rows
    }

    // The list is these groups, and the words after them are as they were.
    fn lists(rt: &impl Abort, bond: &mut Drawn, first: u64, second: u64, groups: &[u64])
        requires { length groups.now ≤ 70 }
    {
        let mut list = [7u64; 70];
        assert_eq!(rt;
            list_groups(bond, first, second, &mut list),
            Ok(groups.len())
        );
        let mut due = [7u64; 70];
        due[..groups.len()].copy_from_slice(groups);
        assert_eq!(rt; list, due);
    }

    // The list is declined, and its memory is as it was.
    fn declines(rt: &impl Abort, bond: &mut Drawn, list: &mut [u64], fault: ListFault) {
        list.fill(7);
        assert_eq!(rt; list_groups(bond, ALL, ALL, list), Err(fault));
        assert!(rt; list.iter().all(|word| *word == 7));
    }

    #[test]
    fn bonds_of_no_one_and_64_points(rt: HostRuntime) {
        lists(&rt, &mut Drawn::new(0, &[ALL]), ALL, ALL, &[]);
        lists(&rt, &mut Drawn::new(1, &[ALL]), ALL, ALL, &[1]);
        lists(&rt, &mut Drawn::new(64, &[]), ALL, ALL, &[]);
        lists(&rt, &mut Drawn::new(64, &[ALL; 64]), ALL, ALL, &[ALL]);
        lists(
            &rt,
            &mut Drawn::new(64, &each_alone()),
            ALL,
            ALL,
            &each_alone(),
        );
    }

    #[test]
    fn points_that_are_not_paired_with_themselves(rt: HostRuntime) {
        lists(&rt, &mut Drawn::new(1, &[0]), ALL, ALL, &[]);
        lists(
            &rt,
            &mut Drawn::new(3, &[0b110, 0b101, 0b011]),
            ALL,
            ALL,
            &[],
        );
        lists(
            &rt,
            &mut Drawn::new(3, &[0b111, 0b101, 0b111]),
            ALL,
            ALL,
            &[0b101],
        );
    }

    #[test]
    fn fewest_points_first_and_ties_by_the_smaller_number(rt: HostRuntime) {
        let mut bond = Drawn::new(6, &SIX);
        lists(
            &rt,
            &mut bond,
            ALL,
            ALL,
            &[0b100000, 0b001100, 0b010001, 0b000111],
        );
        assert_eq!(rt; bond.asked(), 36);
    }

    #[test]
    fn marks_choose_the_groups(rt: HostRuntime) {
        let mut bond = Drawn::new(6, &SIX);
        lists(&rt, &mut bond, 0, ALL, &[]);
        lists(&rt, &mut bond, ALL, 0, &[]);
        lists(&rt, &mut bond, 0b000001, 0b000001, &[0b010001, 0b000111]);
        lists(&rt, &mut bond, 0b000001, 0b000100, &[0b000111]);
        lists(&rt, &mut bond, 0b001000, 0b100100, &[0b001100]);
        lists(&rt, &mut bond, 0b100100, 0b001000, &[0b001100]);
        lists(&rt, &mut bond, 0b100000, 0b000001, &[]);
        lists(&rt, &mut bond, 1 << 63, ALL, &[]);
        lists(
            &rt,
            &mut bond,
            1 << 63 | 1 << 6 | 0b100000,
            ALL,
            &[0b100000],
        );
    }

    #[test]
    fn lists_of_256_groups(rt: HostRuntime) {
        let mut bond = Drawn::new(16, &eight_twos());
        let mut list = [7; 256];
        assert_eq!(rt; list_groups(&mut bond, ALL, ALL, &mut list), Ok(256));
        assert_eq!(rt; list[0], 0x5555);
        assert_eq!(rt; list[255], 0xaaaa);
        declines(&rt, &mut bond, &mut [0; 255], ListFault::TooShort);
        declines(&rt, &mut bond, &mut [], ListFault::TooShort);
    }

    #[test]
    fn no_list_of_257_groups(rt: HostRuntime) {
        let mut rows = eight_twos();
        rows[16] = 1 << 16;
        let mut bond = Drawn::new(17, &rows);
        declines(&rt, &mut bond, &mut [0; 300], ListFault::TooMany);
        declines(&rt, &mut bond, &mut [], ListFault::TooMany);
        lists(&rt, &mut bond, 1 << 16, ALL, &[1 << 16]);
    }

    #[test]
    fn room_for_all_groups_but_one(rt: HostRuntime) {
        let mut bond = Drawn::new(6, &SIX);
        declines(&rt, &mut bond, &mut [0; 3], ListFault::TooShort);
        let mut list = [7; 4];
        assert_eq!(rt; list_groups(&mut bond, ALL, ALL, &mut list), Ok(4));
        assert_eq!(rt; list[3], 0b000111);
    }

    #[test]
    fn numbers_of_the_faults(rt: HostRuntime) {
        let many = Refusal {
            row: 10,
            layer: 4,
            job: 0,
            place: 0,
            cause: 0,
        };
        assert_eq!(rt; Refusal::from(ListFault::TooMany), many);
        assert_eq!(rt;
            Refusal::from(ListFault::TooShort),
            Refusal { row: 11, ..many }
        );
    }
}
