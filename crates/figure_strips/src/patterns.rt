//! The patterns of sleep.

/// The patterns of bars, for the definitions of a picture in which strips stand, or of a page.
pub const PATTERNS: &str =
    "<pattern id=\"children\" width=\"6\" height=\"6\" patternUnits=\"userSpaceOnUse\"><rect class=\"under\" width=\"6\" height=\"6\"/><path class=\"hatch\" d=\"M0 6L6 0\"/></pattern>
<pattern id=\"bytes\" width=\"6\" height=\"6\" patternUnits=\"userSpaceOnUse\"><rect class=\"under\" width=\"6\" height=\"6\"/><path class=\"hatch\" d=\"M3 0V6\"/></pattern>
<pattern id=\"room\" width=\"6\" height=\"6\" patternUnits=\"userSpaceOnUse\"><rect class=\"under\" width=\"6\" height=\"6\"/><path class=\"hatch\" d=\"M0 6L6 0M0 0L6 6\"/></pattern>
";
