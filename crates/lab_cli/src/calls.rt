//! The commands that are built, as calls of a session.
ghost use Rattle.lab_defs_report.specs.Commands as definition;
ghost use Rattle.lab_session.specs.Answers.{Steps, command_of};
ghost use Rattle.lab_session.specs.Sessions.{IsFew};
ghost use Rattle.lab_lines.specs.Lines.{reply_words};

use lab_lines::Reply;
use lab_session::{How, Session, SessionFault};

/// What seat 1 expects where both seats split evenly.
pub fn expect_uniform(session: &mut Session) -> Result<Reply<'static>, SessionFault>
    ensures { Steps reply_words session.old definition.expect_uniform session.new result }
{
    Ok(Reply::Expect(session.expect_uniform()?))
}

/// What seat 1 expects.
pub fn expect(session: &Session) -> Result<Reply<'static>, SessionFault>
    ensures { Steps reply_words session.now definition.expect session.now result }
{
    Ok(Reply::Expect(session.expect()?))
}

/// The bounds of both seats' first strategies.
pub fn blueprint(session: &mut Session, how: How<'_>) -> Result<Reply<'static>, SessionFault>
    requires { IsFew how }
    ensures { Steps reply_words session.old (command_of how.entry) session.new result }
{
    let (first, second) = session.blueprint(how)?;
    Ok(Reply::Blueprint(first, second))
}

/// The bound of a seat.
pub fn bound(session: &Session, seat: u32) -> Result<Reply<'static>, SessionFault>
    ensures { Steps reply_words session.now (definition.bound seat) session.now result }
{
    let bound = session.bound(seat)?;
    Ok(Reply::Bound { seat, bound })
}

/// The weights of a seat.
pub fn show(session: &Session, seat: u32) -> Result<Reply<'_>, SessionFault>
    ensures { Steps reply_words session.now (definition.show seat) session.now result }
{
    let weights = session.show(seat)?;
    Ok(Reply::Show { seat, weights })
}
