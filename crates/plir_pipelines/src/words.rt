//! The words of a command line that are the driver's own.

/// The name of the argument that is the file.
pub const FILE: &str = "FILE";

/// The name of the argument that is the file of the output.
pub const OUTPUT: &str = "output";

/// The name of the option by which an input has several parts.
pub const SPLIT: &str = "split-input-file";

/// The name of the option by which the operation is verified behind each pass.
pub const VERIFY: &str = "verify";

/// Another name of that option.
pub const VERIFY_EACH: &str = "verify-each";

/// The name of the option that names all passes.
pub const PASS_PIPELINE: &str = "pass-pipeline";

/// The name of the option by which the operation is told in front of passes.
pub const PRINT_BEFORE: &str = "print-before";

/// The name of the option by which it is told behind each pass.
pub const PRINT_AFTER_ALL: &str = "print-after-all";

/// The name of the option by which operations are counted.
pub const STATS: &str = "stats";

/// The name of the option by which it is told how long passes take.
pub const TIMING: &str = "timing";

/// The name of the option by which refusals are compared with those that are expected.
pub const VERIFY_DIAGNOSTICS: &str = "verify-diagnostics";

/// The name of the option by which what would be printed is compared with what has to be.
pub const CHECK: &str = "check";

/// The name of the option that lists the calls of a walk.
pub const TRACE_WALK: &str = "trace-walk";

/// The name of the option that lists nodes.
pub const WALK: &str = "walk";

/// The name of the option that lists operations with their places.
pub const LOCATIONS: &str = "locations";

/// The name of the option that draws nodes.
pub const VIEW: &str = "view";

/// The name of the option that draws uses of values too.
pub const VIEW_USES: &str = "view-uses";

/// The name of the option that draws the call graph.
pub const CALL_GRAPH: &str = "call-graph";

/// The words of a command line that are the driver's own: no pass can be offered under one of them.
pub const OWN_WORDS: [&str; 20] = [
    FILE,
    OUTPUT,
    SPLIT,
    VERIFY,
    VERIFY_EACH,
    PASS_PIPELINE,
    PRINT_BEFORE,
    PRINT_AFTER_ALL,
    STATS,
    TIMING,
    VERIFY_DIAGNOSTICS,
    CHECK,
    TRACE_WALK,
    WALK,
    LOCATIONS,
    VIEW,
    VIEW_USES,
    CALL_GRAPH,
    "help",
    "version",
];
