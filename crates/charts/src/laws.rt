// The laws of charts and boxes, each on the contract of a function, so that the check asks for its proof.
ghost use Rattle.charts.specs.Laws.{LoadingLaw, ByShapesLaw, BoxesLaw, IndependenceLaw, UpstreamCallsLaw, TracingLaw};

// A chart is accepted exactly as a sound page that save writes so, and refused exactly with its first fault.
pub fn loading_law_holds()
    ensures { LoadingLaw }
{}

// Load depends on a library through its shapes alone.
pub fn by_shapes_law_holds()
    ensures { ByShapesLaw }
{}

// A box of an accepted chart stays sound under any calls, cycles by the rules, and saves what loads again.
pub fn boxes_law_holds()
    ensures { BoxesLaw }
{}

// A block's cells depend on its upstream alone.
pub fn independence_law_holds()
    ensures { IndependenceLaw }
{}

// Every list of calls has exactly one list of upstream calls.
pub fn upstream_calls_law_holds()
    ensures { UpstreamCallsLaw }
{}

// A trace lights exactly the blocks that have the traced one upstream.
pub fn tracing_law_holds()
    ensures { TracingLaw }
{}
