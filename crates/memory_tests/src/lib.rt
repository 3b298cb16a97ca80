// Tests of the crate `memory` from outside: each rule and each refusal. They stand apart so that the
// library is not proved again for them.

#![tactic(auto)]

#[cfg(test)]
mod tests {
    use memory::{Action, Fences, Memory, ReleaseAcquire, Sequential, Shape, Take, drive};
    use notice::{Notice, Part};
    use std::process::Abort;
    use std::test::Fail;

    fn read(variable: u8) -> Action {
        Action::Read { variable }
    }

    fn write(variable: u8, value: u8) -> Action {
        Action::Write { variable, value }
    }

    fn swap(variable: u8, old: u8, new: u8) -> Action {
        Action::Swap { variable, old, new }
    }

    fn shape(processes: u8, variables: u8, ceiling: u8) -> Result<Shape, Fail> {
        Shape::new(processes, variables, ceiling).ok_or_else(|| Fail::new(
            "a number outside its limits",
        ))
    }

    fn take(process: u8, action: Action, choice: usize) -> Take {
        Take {
            process,
            action,
            choice,
        }
    }

    // The take is accepted with this value and mark.
    fn saw<M: Memory>(
        rt: &impl Abort,
        memory: &mut M,
        take: Take,
        value: u8,
        switch: bool,
    ) -> Result<(), Fail> {
        match memory.take(take.process, take.action, take.choice) {
            Ok(seen) => {
                assert!(rt; seen.value == value && seen.switch == switch);
                Ok(())
            },
            Err(_) => Err(Fail::new("the choice is not offered")),
        }
    }

    // So many choices are offered, and the next is refused with that number.
    fn offered<M: Memory>(
        rt: &impl Abort,
        memory: &mut M,
        process: u8,
        action: Action,
        offered: usize,
    ) -> Result<(), Fail> {
        assert!(rt; memory.offers(process, action) == offered);
        match memory.take(process, action, offered) {
            Ok(_) => return Err(Fail::new("the choice is not refused")),
            Err(refusal) => {
                assert!(rt; refusal.offered == offered);
                let notice = Notice::from(refusal);
                assert_eq!(rt;
                    (notice.number, notice.place, notice.part),
                    (53, 0, Part::Memory)
                );
            }
        }
        assert!(rt; memory.offers(process, action) == offered);
        Ok(())
    }

    #[test]
    fn shapes_have_limits(rt: HostRuntime) {
        assert!(rt; Shape::new(1, 1, 0).is_some());
        assert!(rt; Shape::new(4, 4, 24).is_some());
        for (processes, variables, ceiling) in [
            (0, 1, 0),
            (5, 1, 0),
            (1, 0, 0),
            (1, 5, 0),
            (1, 1, 25),
        ] {
            assert!(rt; Shape::new(processes, variables, ceiling).is_none());
        }
    }

    #[test]
    fn widest_offers(rt: HostRuntime) {
        assert_eq!(rt; Sequential::WIDEST, 1);
        assert_eq!(rt; ReleaseAcquire::WIDEST, 25);
        assert_eq!(rt; Fences::<Sequential>::WIDEST, 1);
        assert_eq!(rt; Fences::<ReleaseAcquire>::WIDEST, 25);
    }

    #[test]
    fn sequential_keeps_one_value(rt: HostRuntime) -> Result<(), Fail> {
        let mut memory = Sequential::new(shape(2, 2, 8)?);
        saw(&rt, &mut memory, take(1, read(2), 0), 0, false)?;
        saw(&rt, &mut memory, take(1, write(2, 7), 0), 0, false)?;
        saw(&rt, &mut memory, take(1, read(2), 0), 7, false)?;
        saw(&rt, &mut memory, take(1, read(1), 0), 0, false)?;
        offered(&rt, &mut memory, 1, swap(2, 0, 1), 0)?;
        offered(&rt, &mut memory, 1, swap(2, 7, 9), 1)?;
        saw(&rt, &mut memory, take(1, swap(2, 7, 9), 0), 7, false)?;
        saw(&rt, &mut memory, take(1, read(2), 0), 9, false)?;
        offered(&rt, &mut memory, 1, Action::Fence, 0)
    }

    // The first step is no switch, a refused one is no step, and local steps count.
    #[test]
    fn sequential_switches(rt: HostRuntime) -> Result<(), Fail> {
        let mut memory = Sequential::new(shape(3, 1, 8)?);
        saw(&rt, &mut memory, take(2, Action::Local, 0), 0, false)?;
        offered(&rt, &mut memory, 1, Action::Local, 1)?;
        saw(&rt, &mut memory, take(2, read(1), 0), 0, false)?;
        saw(&rt, &mut memory, take(3, Action::Local, 0), 0, true)?;
        saw(&rt, &mut memory, take(1, write(1, 1), 0), 0, true)?;
        memory.start(shape(3, 1, 8)?);
        saw(&rt, &mut memory, take(2, read(1), 0), 0, false)
    }

    // Read: each message that is not below the view, by rising timestamp.
    #[test]
    fn reads_take_messages_from_the_view_on(rt: HostRuntime) -> Result<(), Fail> {
        let mut memory = ReleaseAcquire::new(shape(2, 2, 8)?);
        saw(&rt, &mut memory, take(1, write(1, 5), 1), 0, false)?;
        saw(&rt, &mut memory, take(1, write(1, 6), 0), 0, false)?;
        offered(&rt, &mut memory, 1, read(1), 1)?;
        saw(&rt, &mut memory, take(1, read(1), 0), 6, false)?;
        offered(&rt, &mut memory, 2, read(1), 3)?;
        saw(&rt, &mut memory, take(2, read(1), 0), 0, false)?;
        saw(&rt, &mut memory, take(2, read(1), 1), 5, true)?;
        offered(&rt, &mut memory, 2, read(1), 2)?;
        saw(&rt, &mut memory, take(2, read(1), 0), 5, false)
    }

    // A message read brings its writer's view along: message passing.
    #[test]
    fn reads_join_views(rt: HostRuntime) -> Result<(), Fail> {
        let mut memory = ReleaseAcquire::new(shape(2, 2, 8)?);
        saw(&rt, &mut memory, take(1, write(1, 1), 0), 0, false)?;
        saw(&rt, &mut memory, take(1, write(2, 1), 0), 0, false)?;
        offered(&rt, &mut memory, 2, read(1), 2)?;
        saw(&rt, &mut memory, take(2, read(2), 1), 1, true)?;
        offered(&rt, &mut memory, 2, read(1), 1)?;
        saw(&rt, &mut memory, take(2, read(1), 0), 1, false)
    }

    // Write: a timestamp above the view that no message of the variable has, up to the ceiling.
    #[test]
    fn writes_take_free_timestamps(rt: HostRuntime) -> Result<(), Fail> {
        let mut memory = ReleaseAcquire::new(shape(2, 1, 3)?);
        offered(&rt, &mut memory, 1, write(1, 5), 3)?;
        saw(&rt, &mut memory, take(1, write(1, 5), 1), 0, false)?;
        offered(&rt, &mut memory, 1, write(1, 6), 1)?;
        offered(&rt, &mut memory, 2, write(1, 7), 2)?;
        saw(&rt, &mut memory, take(2, write(1, 7), 0), 0, false)?;
        offered(&rt, &mut memory, 2, read(1), 2)?;
        saw(&rt, &mut memory, take(1, write(1, 6), 0), 0, false)?;
        offered(&rt, &mut memory, 1, write(1, 8), 0)?;
        offered(&rt, &mut memory, 2, write(1, 8), 0)
    }

    // Swap: a message of the old value from the view on, whose next timestamp is free and not above the
    // ceiling.
    #[test]
    fn swaps_take_the_next_timestamp(rt: HostRuntime) -> Result<(), Fail> {
        let mut memory = ReleaseAcquire::new(shape(2, 1, 2)?);
        offered(&rt, &mut memory, 1, swap(1, 1, 2), 0)?;
        offered(&rt, &mut memory, 1, swap(1, 0, 5), 1)?;
        saw(&rt, &mut memory, take(1, swap(1, 0, 5), 0), 0, false)?;
        offered(&rt, &mut memory, 2, swap(1, 0, 6), 0)?;
        saw(&rt, &mut memory, take(2, swap(1, 5, 6), 0), 5, true)?;
        offered(&rt, &mut memory, 1, swap(1, 6, 7), 0)?;
        saw(&rt, &mut memory, take(1, read(1), 1), 6, true)
    }

    // The mark goes by the message read: entering the new timestamp itself is no switch.
    #[test]
    fn a_swap_of_a_known_message_is_no_switch(rt: HostRuntime) -> Result<(), Fail> {
        let mut memory = ReleaseAcquire::new(shape(2, 1, 8)?);
        saw(&rt, &mut memory, take(1, write(1, 3), 0), 0, false)?;
        saw(&rt, &mut memory, take(1, swap(1, 3, 4), 0), 3, false)
    }

    #[test]
    fn local_has_one_choice_and_fence_none(rt: HostRuntime) -> Result<(), Fail> {
        let mut memory = ReleaseAcquire::new(shape(1, 1, 0)?);
        offered(&rt, &mut memory, 1, Action::Local, 1)?;
        saw(&rt, &mut memory, take(1, Action::Local, 0), 0, false)?;
        offered(&rt, &mut memory, 1, Action::Fence, 0)?;
        offered(&rt, &mut memory, 1, write(1, 1), 0)?;
        offered(&rt, &mut memory, 1, swap(1, 0, 1), 0)?;
        offered(&rt, &mut memory, 1, read(1), 1)
    }

    fn outside<M: Memory>(rt: &impl Abort, memory: &mut M) -> Result<(), Fail> {
        memory.start(shape(2, 2, 8)?);
        offered(rt, memory, 0, Action::Local, 0)?;
        offered(rt, memory, 3, Action::Local, 0)?;
        offered(rt, memory, 3, read(0), 0)?;
        offered(rt, memory, 1, read(3), 0)?;
        offered(rt, memory, 1, write(3, 0), 0)?;
        offered(rt, memory, 1, swap(255, 0, 0), 0)?;
        offered(rt, memory, 2, read(0), 1)
    }

    #[test]
    fn outside_the_shape_nothing_is_offered(rt: HostRuntime) -> Result<(), Fail> {
        outside(&rt, &mut Sequential::new(shape(4, 4, 24)?))?;
        outside(&rt, &mut ReleaseAcquire::new(shape(4, 4, 24)?))?;
        outside(
            &rt,
            &mut Fences {
                below: ReleaseAcquire::new(shape(4, 4, 24)?),
            },
        )
    }

    // A fence is a swap of variable 0: the second process reads the first one's and learns its view.
    #[test]
    fn fences_order_processes(rt: HostRuntime) -> Result<(), Fail> {
        let mut memory = Fences {
            below: ReleaseAcquire::new(shape(2, 2, 8)?),
        };
        saw(&rt, &mut memory, take(1, write(1, 1), 0), 0, false)?;
        saw(&rt, &mut memory, take(1, Action::Fence, 0), 0, false)?;
        offered(&rt, &mut memory, 2, read(1), 2)?;
        offered(&rt, &mut memory, 2, Action::Fence, 1)?;
        saw(&rt, &mut memory, take(2, Action::Fence, 0), 0, true)?;
        offered(&rt, &mut memory, 2, read(1), 1)?;
        assert_eq!(rt; memory.below.offers(2, Action::Fence), 0);
        Ok(())
    }

    // Takes from the start of the shape, whatever was before; a refused one is passed over.
    #[test]
    fn memories_are_driven(rt: HostRuntime) -> Result<(), Fail> {
        let takes = [
            take(1, write(1, 5), 0),
            take(2, read(1), 2),
            take(2, read(1), 1),
        ];
        let mut memory = ReleaseAcquire::new(shape(1, 1, 0)?);
        drive(&mut memory, shape(2, 1, 8)?, &takes);
        offered(&rt, &mut memory, 2, read(1), 1)?;
        saw(&rt, &mut memory, take(2, read(1), 0), 5, false)
    }
}
