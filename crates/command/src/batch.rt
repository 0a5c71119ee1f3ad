// The commands of a batch, one at a place and all of them.
ghost use Rattle.std.specs.Prelude.{◌≡◌, true, length};
ghost use Rattle.wire.specs.Tag.{length_of, allowed};
ghost use Rattle.command.specs.Command.{command_of, command_at, room_for};
ghost use Rattle.command.specs.Batch.{named, asked_of};

use crate::{Asked, Command};
use layout::{MOST_BATCH_BYTES, MOST_PAIRS, PANELS};
use wire::field::{Span, field_at};
use wire::number::{read8, read16, read32};

// The scan of a payload, where its most is in range.
#[tactic(auto, unfolding(crate::specs::Command::command_of, crate::specs::Command::in_range))]
fn scan_of(p: &[u8]) -> Option<Command>
    requires { length p.now ≡ 10 }
    ensures { result ≡ command_of 4 p.now }
{
    let low = read32(p, 0);
    let high = read32(p, 4);
    let most = read16(p, 8);
    if most < 1 || (MOST_PAIRS as u32) < most {
        return None;
    }
    Some(Command::Scan { low, high, most })
}

// The panel of a payload, where there is such a panel.
#[tactic(auto, unfolding(crate::specs::Command::command_of))]
fn panel_of(p: &[u8]) -> Option<Command>
    requires { length p.now ≡ 1 }
    ensures { result ≡ command_of 5 p.now }
{
    let panel = read8(p, 0) as usize;
    if PANELS <= panel {
        return None;
    }
    Some(Command::Panel { panel })
}

// The command of a tag and a payload of its length.
#[tactic(auto, unfolding(crate::specs::Command::command_of))]
fn command_of(tag: u8, p: &[u8]) -> Option<Command>
    requires { allowed (length_of tag) (length p.now) ≡ true }
    ensures { result ≡ command_of tag p.now }
{
    match tag {
        1 => Some(Command::Get { key: read32(p, 0) }),
        2 => Some(Command::Put {
            key: read32(p, 0),
            value: read32(p, 4),
        }),
        3 => Some(Command::Delete { key: read32(p, 0) }),
        4 => scan_of(p),
        5 => panel_of(p),
        7 => Some(Command::Ceiling { key: read32(p, 0) }),
        _ => None,
    }
}

// The command at a place, where a valid one stands there, with the place behind it.
#[tactic(auto, unfolding(crate::specs::Command::command_at))]
pub fn command_at(s: &[u8], at: usize) -> Option<(Command, usize)>
    ensures { result ≡ command_at s.now at }
{
    let tag = *s.get(at)?;
    let Ok(Span { start, end }) = field_at(s, at, tag) else {
        return None;
    };
    Some((command_of(tag, &s[start..end])?, end))
}

// The answer bytes that a command may need.
pub fn room_for(command: Command) -> usize
    ensures { result ≡ room_for command }
{
    match command {
        Command::Get { .. } | Command::Put { .. } | Command::Delete { .. } => 7,
        Command::Scan { most, .. } => 3 + 8 * (most as usize),
        Command::Panel { .. } => 0,
        Command::Ceiling { .. } => 11,
    }
}

// How many panels a command names: one or none.
pub fn named_by(command: Command) -> usize
    ensures { result ≡ named command }
{
    match command {
        Command::Panel { .. } => 1,
        _ => 0,
    }
}

// What a batch asks for, where it is valid.
pub fn asked(s: &[u8]) -> Option<Asked>
    ensures { result ≡ asked_of s.now }
{
    if MOST_BATCH_BYTES < s.len() {
        return None;
    }
    let mut asked = Asked {
        room: 0,
        commands: 0,
        named: 0,
    };
    let mut at: usize = 0;
    while at < s.len() {
        let (command, next) = command_at(s, at)?;
        asked.room += room_for(command);
        asked.commands += 1;
        asked.named += named_by(command);
        at = next;
    }
    Some(asked)
}
