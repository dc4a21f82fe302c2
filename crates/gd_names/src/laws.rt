//! Laws of the definitions. Each function does nothing: its contract is the law.
ghost use Rattle.std.specs.Prelude.{◌≡◌, ℕ, List, [], Some, All};
ghost use Rattle.gd_names.specs.Escapes.{escaped, unescaped, IsSegmentName};
ghost use Rattle.gd_names.specs.Paths.{path_text, path_of_text};
ghost use Rattle.gd_names.specs.Memory.{ReadsOn, WritesOn, read_faults_of, read_failing_of, write_faults_of, write_failing_of};
ghost use Rattle.gd_names.specs.declared.source.MemorySource.{MemorySource};
ghost use Rattle.gd_names.specs.declared.sink.MemorySink.{MemorySink};

/// The segment of a name stands for that name.
pub fn escapes_read_back()
    ensures { (name : List ℕ) → IsSegmentName name → unescaped (escaped name) ≡ Some name }
{}

/// The text of a path spells that path.
pub fn paths_read_back()
    ensures { (path : List (List ℕ)) → All IsSegmentName path → path_of_text (path_text path) ≡ Some path }
{}

/// A source in memory at which no calls are listed never fails.
pub fn an_unlisted_source_never_fails()
    ensures { (before after : MemorySource) → read_failing_of before ≡ [] → ReadsOn before after → read_faults_of after ≡ read_faults_of before }
{}

/// A sink in memory at which no calls are listed fails for want of memory alone.
pub fn an_unlisted_sink_never_fails()
    ensures { (before after : MemorySink) → write_failing_of before ≡ [] → WritesOn before after → write_faults_of after ≡ write_faults_of before }
{}
