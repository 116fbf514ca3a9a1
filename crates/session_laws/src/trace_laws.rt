//! The law of the traces of sessions. The function carries it as its contract and does nothing.

ghost use Rattle.session_laws.specs.TraceReadings.{TracesAreReplayed};

use session_histories::laws::traces_lead_back;

/// The trace of a lawful session, replayed from its first situation, leads to that session and to
/// nothing else: where the names have the form that texts have and infix operations have two
/// arguments, values are nested at most 500 deep, and numbers of entries have at most ten digits.
pub fn traces_are_replayed()
    ensures { TracesAreReplayed }
{
    traces_lead_back();
}
