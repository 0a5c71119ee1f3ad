// Who is charged (document 02, P2): the current panel; and the session after a command.
ghost use Rattle.std.specs.Prelude.{◌≡◌, ◌+◌, ◌≤◌, ◌<◌, length, get_or};
ghost use Rattle.layout.specs.Layout.{panels};
ghost use Rattle.book.specs.SessionAfter.{panel_after};
ghost use Rattle.book.specs.InTurn.{no_charges};
ghost use Rattle.run.specs.Charges.{added, most64};
ghost use Rattle.run.specs.Session.{session_of, held_after};

use super::Session;
use command::Command;
use layout::PANELS;

// The current panel after a command.
pub fn panel_after(command: Command, session: Session) -> usize
    ensures { result ≡ panel_after (session_of session) command }
{
    match command {
        Command::Panel { panel } => panel,
        _ => session.panel,
    }
}

// The session after a command.
pub fn session_after(command: Command, session: Session) -> Session
    ensures { result ≡ held_after command session }
{
    Session {
        panel: panel_after(command, session),
        ..session
    }
}

// Nothing charged to any panel.
#[tactic(auto, unfolding(book::specs::InTurn::each_panel))]
pub fn clear(charges: &mut [u64; PANELS])
    ensures { charges.new ≡ no_charges }
{
    *charges = [0; PANELS];
}

// Adds to a panel's charge.
pub fn add(charges: &mut [u64; PANELS], panel: usize, amount: u64)
    requires { (length charges.old ≡ panels) × (panel < panels)
        × (get_or charges.old panel 0 + amount ≤ most64) }
    ensures { charges.new ≡ added charges.old panel amount }
{
    charges[panel] += amount;
}
