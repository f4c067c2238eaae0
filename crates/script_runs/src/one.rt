//! Exactly one legal run: from the definitions alone, whatever bytes spell has one legal run over any packs, and no other. The
//! function here does nothing: it stands for the law.

ghost use Rattle.script_runs.specs.OneRun.{LegalRunsAreOne, OneRunExists, BytesHaveOneRun};

/// Whatever bytes spell has exactly one legal run over any packs, and so has each script of fewer than 2 ^ 32 lines. There is a run,
/// and any other one has the same tables and the same moments (so the same trace and the same answers), and leaves the same packs.
pub fn one_run_law()
    ensures bytes { BytesHaveOneRun }
    ensures script { OneRunExists }
    ensures legal { LegalRunsAreOne }
{}
