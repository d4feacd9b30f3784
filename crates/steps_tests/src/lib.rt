// Examples of the ground layer, at both kinds of step: the ends of the ranges and one past each, the order, rosters.
#![tactic(auto)]

#[cfg(test)]
mod tests {
    use refusals::Refusal;
    use std::cmp::Ordering;
    use std::test::Fail;
    use steps::names::is_name_byte;
    use steps::{Code, Name, Roster, RosterFault};

    fn code(unit: u8, code: u32) -> Result<Code, Fail> {
        Code::new(unit, code).ok_or_else(|| Fail::new("no code"))
    }

    fn name(text: &[u8]) -> Result<Name, Fail> {
        Name::new(text).ok_or_else(|| Fail::new("no name"))
    }

    #[test]
    fn codes_to_the_ends_of_their_ranges(rt: HostRuntime) -> Result<(), Fail> {
        let least = code(0, 0)?;
        assert_eq!(rt; least.unit(), 0);
        assert_eq!(rt; least.code(), 0);
        let most = code(63, 16_777_215)?;
        assert_eq!(rt; most.unit(), 63);
        assert_eq!(rt; most.code(), 16_777_215);
        assert!(rt; Code::new(64, 0).is_none());
        assert!(rt; Code::new(63, 16_777_216).is_none());
        assert!(rt; Code::new(255, u32::MAX).is_none());
        Ok(())
    }

    #[test]
    fn codes_by_unit_then_code(rt: HostRuntime) -> Result<(), Fail> {
        let low = code(1, 9)?;
        let high = code(2, 3)?;
        let higher = code(2, 4)?;
        assert_eq!(rt; low.cmp(&high), Ordering::Less);
        assert_eq!(rt; high.cmp(&low), Ordering::Greater);
        assert_eq!(rt; high.cmp(&higher), Ordering::Less);
        assert_eq!(rt; higher.cmp(&high), Ordering::Greater);
        assert_eq!(rt; high.cmp(&high), Ordering::Equal);
        Ok(())
    }

    #[test]
    fn name_bytes_and_their_neighbours(rt: HostRuntime) {
        assert_eq!(rt; (0..=255u8).filter(|b| is_name_byte(*b)).count(), 37);
        assert!(rt; b"AZ09_".iter().all(|b| is_name_byte(*b)));
        assert!(rt; !b"@[/:^`az \n".iter().any(|b| is_name_byte(*b)));
    }

    #[test]
    fn names_of_one_to_eight_bytes(rt: HostRuntime) -> Result<(), Fail> {
        let one = name(b"A")?;
        assert_eq!(rt; one.to_string(rt.alloc())?.as_str(), "A");
        let eight = name(b"AZ09_ABC")?;
        assert_eq!(rt; eight.to_string(rt.alloc())?.as_str(), "AZ09_ABC");
        assert!(rt; Name::new(b"").is_none());
        assert!(rt; Name::new(b"AZ09_ABCD").is_none());
        assert!(rt; Name::new(b"LOAd").is_none());
        assert!(rt; Name::new(b"LO D").is_none());
        assert!(rt; Name::new(b"LOAD\0").is_none());
        assert!(rt; Name::new(b"\xff").is_none());
        Ok(())
    }

    #[test]
    fn names_byte_by_byte_shorter_first(rt: HostRuntime) -> Result<(), Fail> {
        let stem = name(b"READ")?;
        let longer = name(b"READ0")?;
        let other = name(b"REAP")?;
        assert_eq!(rt; stem.cmp(&longer), Ordering::Less);
        assert_eq!(rt; longer.cmp(&stem), Ordering::Greater);
        assert_eq!(rt; longer.cmp(&other), Ordering::Less);
        assert_eq!(rt; other.cmp(&longer), Ordering::Greater);
        assert_eq!(rt; stem.cmp(&stem), Ordering::Equal);
        Ok(())
    }

    #[test]
    fn a_roster_of_names(rt: HostRuntime) -> Result<(), Fail> {
        let done = name(b"DONE")?;
        let load = name(b"LOAD")?;
        let read = name(b"READ")?;
        let tick = name(b"TICK")?;
        let steps = [done, load, read];
        let roster = Roster::new(&steps);
        assert!(rt; roster.is_ascending());
        assert_eq!(rt; roster.number(&done), Some(0));
        assert_eq!(rt; roster.number(&read), Some(2));
        assert_eq!(rt; roster.number(&tick), None);
        assert_eq!(rt; roster.first_unlisted(&[load, read, read, done]), None);
        assert_eq!(rt; roster.first_unlisted(&[load, tick, tick]), Some(1));
        assert_eq!(rt; roster.first_unlisted(&[]), None);
        assert_eq!(rt;
            roster.all_listed(&[load, read, tick]),
            Err(RosterFault::Unlisted { place: 2 })
        );
        assert_eq!(rt; roster.all_listed(&[load, read]), Ok(()));
        Ok(())
    }

    #[test]
    fn equal_neighbours_do_not_ascend(rt: HostRuntime) -> Result<(), Fail> {
        let a = name(b"A")?;
        let b = name(b"B")?;
        assert!(rt; !Roster::new(&[a, a]).is_ascending());
        assert!(rt; !Roster::new(&[a, b, b]).is_ascending());
        assert!(rt; !Roster::new(&[b, a]).is_ascending());
        assert!(rt; Roster::new(&[a, b]).is_ascending());
        assert_eq!(rt; Roster::new(&[b, a, b]).number(&b), Some(0));
        assert_eq!(rt; Roster::new(&[a, a]).fit(2), Err(RosterFault::Unfit));
        Ok(())
    }

    #[test]
    fn rosters_of_1_32_and_33_codes(rt: HostRuntime) -> Result<(), Fail> {
        let first = code(0, 0)?;
        let mut codes = [first; 33];
        for (number, entry) in (0..33u32).zip(codes.iter_mut()) {
            *entry = code(7, number)?;
        }
        assert_eq!(rt; Roster::new(&codes[0..1]).fit(1), Ok(()));
        assert_eq!(rt; Roster::new(&codes[0..32]).fit(32), Ok(()));
        assert_eq!(rt; Roster::new(&codes).fit(33), Ok(()));
        assert_eq!(rt; Roster::new(&codes).fit(32), Err(RosterFault::Unfit));
        assert_eq!(rt; Roster::new(&codes[0..31]).fit(32), Err(RosterFault::Unfit));
        assert_eq!(rt; Roster::new(&codes).number(&codes[32]), Some(32));
        assert_eq!(rt; Roster::new(&codes[0..32]).number(&codes[32]), None);
        assert_eq!(rt; Roster::new(&codes).len(), 33);
        Ok(())
    }

    #[test]
    fn faults_in_five_numbers(rt: HostRuntime) -> Result<(), Fail> {
        assert_eq!(rt;
            Refusal::from(RosterFault::Unfit),
            Refusal {
                row: 3,
                layer: 2,
                job: 0,
                place: 0,
                cause: 0,
            }
        );
        let unlisted = Refusal::from(RosterFault::Unlisted { place: 7 });
        assert_eq!(rt;
            unlisted,
            Refusal {
                row: 5,
                layer: 2,
                job: 0,
                place: 7,
                cause: 0,
            }
        );
        assert_eq!(rt;
            unlisted.to_string(rt.alloc())?.as_str(),
            "REFUSED 5 2 0 7 0"
        );
        Ok(())
    }
}
