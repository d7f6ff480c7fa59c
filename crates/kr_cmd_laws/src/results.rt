//! What a call ends in follows from what it is told. The functions do nothing.
ghost use Rattle.kr_cmd_laws.specs.Results.{AllIsTold, CompleteCalls, OneResult};

/// Two calls with the same words over the same told files, input, draws, exchanges and rows end in
/// the same status, line, output and rows, where no count rose and no memory lacked.
pub fn one_result()
    ensures { OneResult }
{}

/// Where no call that the steps come to failed, a call ends as its steps do, or for want of memory;
/// where all that it touches is told, in the one way that they go.
pub fn complete()
    ensures { CompleteCalls }
{}

/// Around which all files, tapes and the input are told, and the random source of seat 0, each
/// command is told all that it touches, so the premise of both can be met.
pub fn all_is_told()
    ensures { AllIsTold }
{}
