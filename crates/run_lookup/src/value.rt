// The answer of a get.
ghost use Rattle.std.specs.Prelude.{◌≡◌};
ghost use Rattle.command.specs.declared.Answer.TheVariants.{Got};
ghost use Rattle.command.specs.Answer.{value_or};

use command::Answer;

// The value that was found, or that there is none.
pub fn get_answer(value: Option<u32>) -> Answer
    ensures { result ≡ value_or Got value }
{
    match value {
        Some(v) => Answer::Got(v),
        None => Answer::Absent,
    }
}
