//! What no trace reaches, tried by tests: the last serial, a store asked for a granule that it has not, words that are no
//! capability, and an input that is too long.
#![tactic(auto)]

#[cfg(test)]
mod tests {
    use capability::format::Format;
    use capability::refusal::Refusal;
    use capability::types::Capability;
    use compact::format::Compact;
    use exact::Exact;
    use flat::Flat;
    use memory::memory::Memory;
    use std::test::Fail;
    use store::Store;
    use trace::transcript::transcript;

    #[test]
    fn the_last_serial(rt: HostRuntime) {
        let mut bytes = [255u8; 64];
        let mut tags = [255u8; 1];
        let mut flat = Flat {
            data: &mut bytes,
            tags: &mut tags,
        };
        let mut memory: Memory<Exact, Flat> = Memory::start(&mut flat, 4294967295);
        assert_eq!(rt; memory.allocate(0, 8), Ok(4294967295));
        assert_eq!(rt; memory.allocate(1, 8), Err(Refusal::SerialsExhausted));
        assert_eq!(rt; memory.tally(), Ok(8));
    }

    #[test]
    fn no_such_granule(rt: HostRuntime) {
        let mut bytes = [255u8; 17];
        let mut tags = [255u8; 1];
        let mut flat = Flat {
            data: &mut bytes,
            tags: &mut tags,
        };
        assert_eq!(rt; flat.count(), 2);
        assert_eq!(rt; flat.get(2), Err(Refusal::NoSuchGranule));
        assert_eq!(rt; flat.set(2, 0, false), Err(Refusal::NoSuchGranule));
        assert_eq!(rt; flat.set(1, 513, false), Ok(()));
        assert_eq!(rt; flat.get(1), Ok((513, false)));
        assert_eq!(rt; bytes[16], 255);
        assert_eq!(rt; tags[0], 253);
    }

    #[test]
    fn no_capability(rt: HostRuntime) {
        assert_eq!(rt; <Compact as Format>::read(0), Err(Refusal::NotCapability));
        assert_eq!(rt;
            <Exact as Format>::read(18014398509481984),
            Err(Refusal::NotCapability)
        );
        assert_eq!(rt;
            <Exact as Format>::read(0),
            Ok(Capability {
                base: 0,
                top: 1,
                address: 0,
                rights: 0,
            })
        );
        assert_eq!(rt;
            <Compact as Format>::unit(65537),
            Err(Refusal::BadParameter)
        );
    }

    #[test]
    fn too_long(rt: HostRuntime) -> Result<(), Fail> {
        let input = vec![in rt.alloc(); 10u8; 65537]?;
        let answer = transcript(rt.alloc(), input.as_slice())?;
        assert_eq!(rt;
            answer.as_slice(),
            b"     0  1                    0\n".as_slice()
        );
        Ok(())
    }
}
