//! A law of sources. The contract is the law; the function does nothing when it runs.

ghost use Rattle.project_sources.specs.Laws.{NeverBoth, RefusalIsOne, SourcesComeToOne, TreesAreOne};

/// What the sources of a project come to is one thing: they are refused for these errors, or they have these trees.
pub fn sources_are_one()
    ensures exists { SourcesComeToOne }
    ensures refusal { RefusalIsOne }
    ensures trees { TreesAreOne }
    ensures apart { NeverBoth }
{}
