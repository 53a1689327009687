//! What holds of the definitions: there is no code to run.

ghost use Rattle.curve_points.specs.Rows.{NumberRows, PointRows};

/// The worked rows: inverses and witnesses, sums and multiples on a curve of 113 points.
pub fn point_rows_hold()
    // Inverses, witnesses and words.
    ensures numbers { NumberRows }
    // Sums and multiples.
    ensures points { PointRows }
{}
