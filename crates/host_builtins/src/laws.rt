//! Laws of the calls for their callers, as contracts of functions that do nothing.
ghost use Rattle.host_builtins.specs.Laws.{CallsAreSound, ConstructionsAreSound, MemberCallsAreSound, PushesAreSound, PushingAppends};

/// A call leaves each object live and of its kind, and the value that it gives is live.
pub fn sound_calls()
    ensures calls { CallsAreSound }
    ensures constructions { ConstructionsAreSound }
    ensures member_calls { MemberCallsAreSound }
    ensures pushes { PushesAreSound }
{
    host_values::laws::adding();
    host_values::laws::writing();
}

/// `push` of an Array that isn't full appends.
pub fn pushing()
    ensures { PushingAppends }
{}
