//! What the limit of depth means.
ghost use Rattle.va_tree.specs.DepthLimit.{DepthLimit};
ghost use Rattle.va_tree.specs.declared.source.Source.{Source};

/// Every node has a depth of at most 500 exactly where no node has the depth 501, since a deeper node stands in one of that
/// depth. Where no node begins before one that it stands in, the first node of depth 501 begins where the first deeper than
/// 500 does.
pub fn depth_501_tells()
    ensures { (s : Source) → DepthLimit s }
{}
