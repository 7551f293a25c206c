//! Laws of what calculations ask and give. Each is the contract of a function that does nothing.

ghost use Rattle.std.specs.Prelude.{◌≡◌};
ghost use Rattle.wc_value.specs.declared.process.JobResult.{JobResult};
ghost use Rattle.wc_syntax.specs.Bare.{bare_function, bare_job};
ghost use Rattle.wc_syntax.specs.declared.definition.Function.{Function};
ghost use Rattle.wc_syntax.specs.declared.definition.Job.{Job};
ghost use Rattle.wc_semantics.specs.Rules.{Values};
ghost use Rattle.wc_semantics.specs.Requests.{request};
ghost use Rattle.wc_semantics.specs.Outcomes.{calculated, parsed, job_outcome};

/// Offsets play no part in what calculations ask and give.
pub fn calculations_use_no_offsets()
    // The outcome of a function is the same without offsets.
    ensures functions { (f : Function) (inputs : Values) → calculated (bare_function f) inputs ≡ calculated f inputs }
    // So is the request of a job.
    ensures requests { (j : Job) (inputs : Values) → request (bare_job j) inputs ≡ request j inputs }
    // So is what its rules make of a result.
    ensures results { (j : Job) (inputs : Values) (r : JobResult) → parsed (bare_job j) inputs r ≡ parsed j inputs r }
    // So is its outcome.
    ensures jobs { (j : Job) (inputs : Values) (r : JobResult) → job_outcome (bare_job j) inputs r ≡ job_outcome j inputs r }
{}
