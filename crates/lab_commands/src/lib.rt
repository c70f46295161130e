//! The commands of a session, read from their lines.
#![tactic(auto)]

mod command;
mod kinds;
mod numbers;
mod read;

pub use command::Command;
pub use read::command_at;

#[cfg(test)]
mod tests {
    use super::*;
    use lab_rule::RuleName;
    use lab_text::LineFault;
    use std::test::Fail;

    #[test]
    fn reads_commands(rt: HostRuntime) -> Result<(), Fail> {
        let alloc = rt.alloc();
        let proposal = command_at(alloc, 1, b"propose 1 4 reach 2 0 1 1");
        match &proposal {
            Ok(
                Command::Propose {
                    seat,
                    node,
                    rule,
                    weights,
                },
            ) => {
                assert!(rt; *seat == 1 && *node == 4 && *rule == RuleName::Reach);
                assert_eq!(rt; weights.as_slice(), [2, 0, 1, 1].as_slice());
            }
            _ => assert!(rt; false, "no proposal"),
        }
        let deal = command_at(alloc, 1, b"deal 0 18446744073709551615");
        match &deal {
            Ok(Command::Deal { words }) => assert_eq!(rt;
                words.as_slice(),
                [0, u64::MAX].as_slice()
            ),
            _ => assert!(rt; false, "no deal"),
        }
        assert!(rt;
            matches!(
                command_at(alloc, 7, b"play 3"),
                Ok(Command::Play { rounds: 3, seed: 7 })
            )
        );
        assert!(rt;
            matches!(
                command_at(alloc, 1, b"resolve 1 0 foo"),
                Err(LineFault::BadWord { place: 5 })
            )
        );
        assert!(rt;
            matches!(
                command_at(alloc, 1, b"expect foo bar"),
                Err(LineFault::BadWord { place: 2 })
            )
        );
        Ok(())
    }
}
