// Tests of the crates `session` and `sitting` from outside: each call before and after a table, a question and an answer,
// and the refusal that a sitting cannot write. They stand apart so that the libraries are not proved again for them.

#![tactic(auto)]

#[cfg(test)]
mod tests {
    use memory::{Fences, ReleaseAcquire};
    use notice::Notice;
    use runs::{Verdict, Worked};
    use session::{Refusal, Session, Stage, Standing, release_acquire};
    use sitting::sitting;
    use std::process::Abort;
    use std::test::Fail;

    // Each of two processes writes its variable and then is to read 0 from the other's.
    const STORE_BUFFERING: &[u8] = b"   2   2   3   2  10   0
   1   1   4   1   1   0
   1   2   2   1   1   0
   1   3   1   2   2   0
   1   4   7   2   3   0
   1   5   9   0   0   0
   2   1   4   1   1   0
   2   2   2   2   1   0
   2   3   1   2   1   0
   2   4   7   2   3   0
   2   5   9   0   0   0
";

    const RUN: &[u8] = b"   1   1   1   0   0   0
   2   1   2   0   0   0
   3   1   3   0   0   0
   4   1   4   0   0   0
   5   2   1   0   0   0
   6   2   2   0   0   0
   7   2   3   0   0   0
   8   2   4   0   0   0
";

    // The number of a refusal, 0 where nothing is refused.
    fn number<T: Drop>(answer: Result<T, Refusal>) -> u8 {
        match answer {
            Ok(_) => 0,
            Err(why) => Notice::from(why).number,
        }
    }

    fn units(units: u32, verdict: Verdict) -> Worked {
        Worked { units, verdict }
    }

    #[test]
    fn a_new_session_has_nothing_to_tell(rt: HostRuntime) {
        let mut session = release_acquire();
        let mut out = [7; 30];
        assert_eq!(rt; u8::from(session.standing().stage), 0);
        assert_eq!(rt; number(session.put(8, 0, [5, 5, 0, 0])), 21);
        assert_eq!(rt; number(session.work(1)), 31);
        assert_eq!(rt; number(session.replay(RUN)), 41);
        assert_eq!(rt; number(session.report(&mut out)), 61);
        assert!(rt; session.step(1).is_none());
        assert!(rt; out == [7; 30]);
    }

    // A session with store buffering, and its question.
    fn asked(rt: &impl Abort) -> Session<Fences<ReleaseAcquire>> {
        let mut session = release_acquire();
        assert_eq!(rt; number(session.load(STORE_BUFFERING)), 0);
        assert_eq!(rt; number(session.put(8, 0, [5, 5, 0, 0])), 0);
        session
    }

    // What works of these efforts answer, one after another.
    fn works(
        rt: &impl Abort,
        session: &mut Session<Fences<ReleaseAcquire>>,
        told: &[(u32, Worked)],
    ) {
        for (effort, worked) in told {
            assert_eq!(rt; session.work(*effort).ok(), Some(*worked));
        }
    }

    #[test]
    fn a_question_is_answered(rt: HostRuntime) {
        let mut session = asked(&rt);
        assert_eq!(rt; number(session.work(0)), 32);
        assert_eq!(rt; number(session.work(1_000_001)), 32);
        let told = [
            (4, units(4, Verdict::More)),
            (4, units(4, Verdict::More)),
            (1, units(1, Verdict::Found)),
            (5, units(0, Verdict::Found)),
        ];
        works(&rt, &mut session, &told);
        let found = Standing {
            stage: Stage::Found,
            steps: 8,
        };
        assert_eq!(rt; session.standing(), found);
    }

    #[test]
    fn a_step_is_told(rt: HostRuntime) -> Result<(), Fail> {
        let mut session = asked(&rt);
        assert!(rt; session.step(6).is_none());
        works(&rt, &mut session, &[(9, units(9, Verdict::Found))]);
        assert!(rt; session.step(0).is_none());
        assert!(rt; session.step(9).is_none());
        let Some(sixth) = session.step(6) else {
            return Err(Fail::new("there is no sixth step"));
        };
        assert_eq!(rt; (sixth.step, sixth.process, sixth.label), (6, 2, 2));
        assert_eq!(rt; (sixth.choice, sixth.value, sixth.switch), (0, 0, false));
        Ok(())
    }

    #[test]
    fn a_report_is_written(rt: HostRuntime) {
        let mut session = asked(&rt);
        let mut open = [7; 26];
        assert_eq!(rt; session.report(&mut open).ok(), Some(25));
        assert!(rt; open == *b"   0   3   0   0   0   0\n\x07");
        works(&rt, &mut session, &[(9, units(9, Verdict::Found))]);
        let mut short = [7; 224];
        assert_eq!(rt; number(session.report(&mut short)), 62);
        assert!(rt; short == [7; 224]);
        let mut out = [7; 225];
        assert_eq!(rt; session.report(&mut out).ok(), Some(225));
        assert!(rt; &out[25..] == RUN);
    }

    #[test]
    fn runs_are_replayed(rt: HostRuntime) {
        let mut session = asked(&rt);
        assert_eq!(rt; number(session.replay(RUN)), 0);
        assert_eq!(rt; number(session.replay(&RUN[..175])), 56);
        assert_eq!(rt; number(session.replay(&RUN[25..])), 51);
        assert_eq!(rt; number(session.replay(&RUN[1..])), 42);
    }

    // A refused call leaves the answer, a put begins again, and a load ends the question.
    #[test]
    fn answers_come_and_go(rt: HostRuntime) {
        let mut session = asked(&rt);
        works(&rt, &mut session, &[(9, units(9, Verdict::Found))]);
        assert_eq!(rt; number(session.put(25, 0, [0; 4])), 22);
        assert_eq!(rt; number(session.put(0, 0, [0, 6, 0, 0])), 23);
        assert_eq!(rt; number(session.load(&STORE_BUFFERING[1..])), 11);
        assert_eq!(rt; u8::from(session.standing().stage), 3);
        assert_eq!(rt; number(session.put(0, 0, [2, 0, 0, 0])), 0);
        assert_eq!(rt; u8::from(session.standing().stage), 2);
        works(&rt, &mut session, &[(1, units(1, Verdict::None))]);
        assert_eq!(rt; u8::from(session.standing().stage), 4);
        assert_eq!(rt; number(session.load(STORE_BUFFERING)), 0);
        assert_eq!(rt; u8::from(session.standing().stage), 1);
    }

    #[test]
    fn a_sitting_refuses_a_short_buffer(rt: HostRuntime) {
        let mut out = [7; 624];
        let refused = sitting(STORE_BUFFERING, &mut out);
        assert!(rt; matches!(refused, Err(Refusal::Buffer)));
        assert!(rt; out == [7; 624]);
    }
}
