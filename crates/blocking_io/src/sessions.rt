// Requests one after another.
ghost use Rattle.blocking_io.specs.Sessions.{AnswersReach, SessionsJoin, StopsJoin};

/// Requests that are answered one after another form one session, from each replay that stands for the driver before the first request.
/// The replay after that session stands for the driver after the last request. If the last request stops, so does the whole: the trace
/// took a front of all lines, and the packs are as these lines leave the packs that the first request found.
pub fn sessions_law()
    ensures answered { AnswersReach }
    ensures join { SessionsJoin }
    ensures stops { StopsJoin }
{}
