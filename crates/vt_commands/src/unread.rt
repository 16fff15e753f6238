//! The end of a run whose words are refused.

ghost use Rattle.std.specs.Prelude.{◌≡◌};
ghost use Rattle.vt_command_inputs.specs.Effects.{sink_effect};
ghost use Rattle.vt_command_inputs.specs.Refusals.{refusal_status, refusal_line, Printed, refusal_of_words};
ghost use Rattle.vt_walk_commands.specs.StoreCommandsCommands.{usage_line};

use vt_command_inputs::Refusal;
use vt_command_words::WordsError;
use vt_outside::Sink;
use vt_walk_commands::usage_line;

/// Ends a run whose words could not be read: prints why, and answers the status.
pub fn refuse_unread<E: Sink>(error: WordsError, err: &mut E) -> u8
    ensures status { result ≡ refusal_status (refusal_of_words error) }
    ensures printed { Printed (refusal_line usage_line (refusal_of_words error)) (sink_effect E.Sink err.old err.new) }
{
    let refusal = Refusal::from(error);
    refusal.print(usage_line(), err);
    refusal.status()
}
