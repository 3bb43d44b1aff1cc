//! Cases of the stores, run: each test makes a store, calls it in plain code, takes it apart and lets it go.
#![tactic(auto)]

#[cfg(test)]
mod tests {
    use array_store::ArrayStore;
    use hash_store::HashStore;
    use hash_store::slot::Slot;
    use std::process::Abort;
    use std::test::Fail;
    use stores::store::Store;
    use window::Window;

    #[test]
    fn window_over_two_hundred(rt: HostRuntime) -> Result<(), Fail> {
        let slots = vec![in rt.alloc(); None; 200]?;
        let mut w = Window::new(100, 8, ArrayStore::new(slots));
        assert!(rt; w.put(7, 5u32).is_ok());
        assert!(rt; w.put(8, 6u32).is_err());
        let below = w.into_below();
        assert!(rt; below.get(107) == Some(5u32));
        assert!(rt; below.get(108) == None);
        assert!(rt; below.into_slots().len() == 200);
        Ok(())
    }

    fn uses_most(rt: &impl Abort, slots: Vec<Option<u32>>) -> Result<(), Fail> {
        let n = slots.len();
        let mut s = ArrayStore::new(slots);
        assert!(rt; s.get(0) == None);
        assert!(rt; s.put(65_535, 2u32).is_ok());
        assert!(rt; s.put(65_536, 3u32).is_err());
        let slots = s.into_slots();
        assert!(rt; slots.len() == n);
        assert!(rt; slots.get(65_535).copied() == Some(Some(2u32)));
        assert!(rt; slots.get(65_536).copied() != Some(Some(1u32)));
        Ok(())
    }

    #[test]
    fn most_slots_of_an_array_store(rt: HostRuntime) -> Result<(), Fail> {
        uses_most(&rt, vec![in rt.alloc(); Some(1u32); 65_536]?)?;
        uses_most(&rt, vec![in rt.alloc(); Some(1u32); 65_537]?)
    }

    fn fills_most(rt: &impl Abort, slots: Vec<Slot<u32>>) -> Result<(), Fail> {
        let mut s = HashStore::new(slots);
        for i in 0..65_536u32 {
            assert!(rt; s.put(i.wrapping_mul(65_537), i).is_ok());
        }
        assert!(rt; !s.takes(1));
        assert!(rt; s.put(1, 0).is_err());
        s.drop(65_537);
        assert!(rt; s.takes(1));
        assert!(rt; s.get(0) == Some(0));
        assert!(rt; s.get(2 * 65_537) == Some(2));
        Ok(())
    }

    #[test]
    fn most_slots_of_a_hash_store(rt: HostRuntime) -> Result<(), Fail> {
        fills_most(&rt, vec![in rt.alloc(); None; 65_536]?)?;
        fills_most(&rt, vec![in rt.alloc(); None; 65_537]?)
    }
}
