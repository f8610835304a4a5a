//! Laws of steps for their callers, as contracts of functions that do nothing.
ghost use Rattle.host_laws.specs.Changes.{KindsStay, NewKindsAreOwn, StepsChange};
ghost use Rattle.host_laws.specs.Live.{AnsweredFramesAreLive, FramesBeginLive, FreshHeapsAreLive, HeapsStayLive, LaterTermsAreLive, ObjectsStay, StepsStayLive};
ghost use Rattle.host_laws.specs.Waiting.{FocusIsOfFrame, StepsWait};

/// A step of a frame changes the heap only so: it makes objects of the kinds that a script makes by itself, writes members, and sets
/// global bindings.
pub fn steps_change()
    ensures { StepsChange }
{}

/// Where the heap changes so, each object keeps its kind, and each new one is of such a kind.
pub fn kinds_stay()
    ensures stay { KindsStay }
    ensures own { NewKindsAreOwn }
{
    host_values::laws::writing();
}

/// A step of a frame that is live, over a heap that is live, leaves both so, and its effect names live objects alone.
pub fn steps_stay_live()
    ensures { StepsStayLive }
{
    host_builtins::laws::sound_calls();
}

/// A heap is live at the start, and stays so when it is changed with what is live. Its objects stay, and so does what is live in it.
pub fn live_heaps()
    ensures fresh { FreshHeapsAreLive }
    ensures changed { HeapsStayLive }
    ensures objects { ObjectsStay }
    ensures terms { LaterTermsAreLive }
{}

/// A frame begins live, and stays so when its effect is answered.
pub fn live_frames()
    ensures begun { FramesBeginLive }
    ensures answered { AnsweredFramesAreLive }
{}

/// A frame whose step went on can go on, and one whose effect asks for an answer waits for it.
pub fn steps_wait()
    ensures steps { StepsWait }
    ensures focus { FocusIsOfFrame }
{}
