// Tests of the crate `program` from outside: each refusal, the shortest and the longest table, every
// instruction. They stand apart so that the library is not proved again for them.

#![tactic(auto)]

#[cfg(test)]
mod tests {
    use notice::Notice;
    use program::{Instruction, Table};
    use std::alloc::Global;
    use std::process::Abort;
    use std::test::Fail;
    use text::write_line;

    const TERM: [u16; 6] = [1, 1, 9, 0, 0, 0];

    // What is told of a text: that it is accepted, or the number and the place of the refusal, which a user is told and
    // which are what is tested here.
    type Told = Result<(), (u8, u8)>;

    // The lines of a table, and what is told of them.
    #[derive(Clone, Copy)]
    struct Case {
        lines: &'static [[u16; 6]],
        told: Told,
    }

    const CASES: [Case; 21] = [
        Case {
            lines: &[[1, 1, 1, 2, 1, 0], TERM],
            told: Ok(()),
        },
        // Each number of the header just outside its limits.
        Case {
            lines: &[[0, 1, 1, 2, 1, 0], TERM],
            told: Err((13, 1)),
        },
        Case {
            lines: &[[5, 1, 1, 2, 1, 0], TERM],
            told: Err((13, 1)),
        },
        Case {
            lines: &[[1, 5, 1, 2, 1, 0], TERM],
            told: Err((13, 1)),
        },
        Case {
            lines: &[[1, 1, 5, 2, 1, 0], TERM],
            told: Err((13, 1)),
        },
        Case {
            lines: &[[1, 1, 1, 1, 1, 0], TERM],
            told: Err((13, 1)),
        },
        Case {
            lines: &[[1, 1, 1, 9, 1, 0], TERM],
            told: Err((13, 1)),
        },
        Case {
            lines: &[[1, 1, 1, 2, 2, 0], TERM],
            told: Err((13, 1)),
        },
        Case {
            lines: &[[1, 1, 1, 2, 1, 1], TERM],
            told: Err((13, 1)),
        },
        // The first row is process 1, label 1; the others follow.
        Case {
            lines: &[[1, 1, 1, 2, 1, 0], [1, 2, 9, 0, 0, 0]],
            told: Err((14, 2)),
        },
        Case {
            lines: &[[2, 1, 1, 2, 1, 0], [2, 1, 9, 0, 0, 0]],
            told: Err((14, 2)),
        },
        Case {
            lines: &[[1, 1, 1, 2, 2, 0], TERM, [2, 1, 9, 0, 0, 0]],
            told: Err((14, 3)),
        },
        // No such register, constant, instruction; an operand that should be 0.
        Case {
            lines: &[[1, 1, 1, 2, 1, 0], [1, 1, 1, 2, 1, 0]],
            told: Err((15, 2)),
        },
        Case {
            lines: &[[1, 1, 1, 2, 1, 0], [1, 1, 4, 1, 2, 0]],
            told: Err((15, 2)),
        },
        Case {
            lines: &[[1, 1, 1, 2, 1, 0], [1, 1, 10, 0, 0, 0]],
            told: Err((15, 2)),
        },
        Case {
            lines: &[[1, 1, 1, 2, 1, 0], [1, 1, 9, 0, 0, 1]],
            told: Err((15, 2)),
        },
        // An operand higher up comes before an order further down.
        Case {
            lines: &[[1, 1, 1, 2, 2, 0], [1, 1, 4, 1, 2, 0], [1, 3, 9, 0, 0, 0]],
            told: Err((15, 2)),
        },
        // A label is one of the row's own process: it has one here, and the other process two.
        Case {
            lines: &[
                [2, 1, 1, 2, 3, 0],
                [1, 1, 6, 1, 1, 2],
                [2, 1, 8, 0, 0, 0],
                [2, 2, 9, 0, 0, 0],
            ],
            told: Err((15, 2)),
        },
        // The lowest process that does not end in TERM, then a process without rows.
        Case {
            lines: &[[2, 1, 1, 2, 2, 0], [1, 1, 8, 0, 0, 0], [2, 1, 8, 0, 0, 0]],
            told: Err((16, 2)),
        },
        Case {
            lines: &[[2, 1, 1, 2, 2, 0], TERM, [2, 1, 8, 0, 0, 0]],
            told: Err((16, 3)),
        },
        Case {
            lines: &[[2, 1, 1, 2, 1, 0], TERM],
            told: Err((16, 2)),
        },
    ];

    // Adds a line of six numbers to a text.
    fn add_line(rt: &impl Abort, text: &mut Vec<u8>, line: &[u16; 6]) -> Result<(), Fail> {
        let mut bytes = [0; 25];
        assert!(rt; write_line(line, &mut bytes).is_ok());
        text.extend_from_slice(&bytes)?;
        Ok(())
    }

    fn text_of(rt: &impl Abort, heap: Global, lines: &[[u16; 6]]) -> Result<Vec<u8>, Fail> {
        let mut text = Vec::new(heap);
        for line in lines {
            add_line(rt, &mut text, line)?;
        }
        Ok(text)
    }

    fn told(table: &mut Table, text: &[u8]) -> Told {
        table.read(text).map_err(|refusal| {
            let notice = Notice::from(refusal);
            (notice.number, notice.place)
        })
    }

    #[test]
    fn refused_by_numbers(rt: HostRuntime) -> Result<(), Fail> {
        let heap = rt.alloc();
        let mut table = Table::empty();
        for case in CASES {
            let text = text_of(&rt, heap, case.lines)?;
            assert_eq!(rt; told(&mut table, text.as_slice()), case.told);
            // The table of the first case is still there.
            assert_eq!(rt; table.instruction(1, 1), Some(Instruction::Term));
        }
        Ok(())
    }

    #[test]
    fn refused_by_length_and_fields(rt: HostRuntime) {
        let mut table = Table::empty();
        assert_eq!(rt; told(&mut table, b""), Err((11, 0)));
        assert_eq!(rt;
            told(&mut table, b"   1   1   1   2   1   0\n"),
            Err((11, 0))
        );
        assert_eq!(rt;
            told(
                &mut table,
                b"   1   1   1   2   1   0\n   1   1   9   0   0  00\n",
            ),
            Err((12, 2))
        );
        // A wrong line end further down comes before a wrong header.
        assert_eq!(rt;
            told(
                &mut table,
                b"   9   1   1   2   1   0\n   1   1   9   0   0   0 ",
            ),
            Err((12, 2))
        );
        assert!(rt; table.is_empty());
    }

    // Four processes of 32 rows each, and one row more in each if asked for.
    fn longest(rt: &impl Abort, heap: Global, most: u16) -> Result<Vec<u8>, Fail> {
        let mut text = text_of(rt, heap, &[[4, 1, 1, 2, 128, 0]])?;
        for process in 1..5u16 {
            for label in 1..most {
                add_line(rt, &mut text, &[process, label, 8, 0, 0, 0])?;
            }
            add_line(rt, &mut text, &[process, most, 9, 0, 0, 0])?;
        }
        Ok(text)
    }

    #[test]
    fn shortest_and_longest(rt: HostRuntime) -> Result<(), Fail> {
        let heap = rt.alloc();
        let mut table = Table::empty();
        assert_eq!(rt;
            told(&mut table, longest(&rt, heap, 33)?.as_slice()),
            Err((11, 0))
        );
        assert_eq!(rt; table.instruction(1, 1), None);
        assert_eq!(rt;
            told(&mut table, longest(&rt, heap, 32)?.as_slice()),
            Ok(())
        );
        assert_eq!(rt; table.rows().len(), 128);
        assert_eq!(rt; table.labels(4), 32);
        assert_eq!(rt; table.instruction(4, 31), Some(Instruction::Fence));
        assert_eq!(rt; table.instruction(4, 33), None);
        assert_eq!(rt;
            told(
                &mut table,
                text_of(&rt, heap, &[[1, 1, 1, 2, 1, 0], TERM])?.as_slice(),
            ),
            Ok(())
        );
        assert_eq!(rt; table.labels(2), 0);
        assert_eq!(rt; table.instruction(1, 1), Some(Instruction::Term));
        Ok(())
    }

    const NINE: [[u16; 6]; 10] = [
        [1, 2, 3, 4, 9, 0],
        [1, 1, 1, 1, 2, 0],
        [1, 2, 2, 2, 1, 0],
        [1, 3, 3, 1, 2, 3],
        [1, 4, 4, 3, 0, 0],
        [1, 5, 5, 1, 2, 3],
        [1, 6, 6, 1, 2, 9],
        [1, 7, 7, 2, 3, 0],
        [1, 8, 8, 0, 0, 0],
        [1, 9, 9, 0, 0, 0],
    ];

    const ALL: [Instruction; 9] = [
        Instruction::Read {
            register: 1,
            variable: 2,
        },
        Instruction::Write {
            variable: 2,
            register: 1,
        },
        Instruction::Cas {
            variable: 1,
            old: 2,
            new: 3,
        },
        Instruction::Set {
            register: 3,
            constant: 0,
        },
        Instruction::Add {
            register: 1,
            left: 2,
            right: 3,
        },
        Instruction::Jeq {
            left: 1,
            right: 2,
            label: 9,
        },
        Instruction::Assume { left: 2, right: 3 },
        Instruction::Fence,
        Instruction::Term,
    ];

    #[test]
    fn every_instruction(rt: HostRuntime) -> Result<(), Fail> {
        let text = text_of(&rt, rt.alloc(), &NINE)?;
        let mut table = Table::empty();
        assert_eq!(rt; told(&mut table, text.as_slice()), Ok(()));
        for (label, instruction) in (1u8..).zip(ALL) {
            assert_eq!(rt; table.instruction(1, label), Some(instruction));
        }
        let mut out = [7; 251];
        assert_eq!(rt; table.write(&mut out), Ok(250));
        assert!(rt; &out[0..250] == text.as_slice());
        assert_eq!(rt; out[250], 7);
        Ok(())
    }
}
