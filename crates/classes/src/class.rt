// The class of a block, and the number it has in a lent slice of f64.
ghost use Rattle.std.specs.Prelude.{◌≡◌, ◌<◌, length, get_or};
ghost use Rattle.std.specs.Float.{nan};
ghost use Rattle.std.specs.Float.Ieee.{eq};
ghost use Rattle.classes.specs.Class.{code_of};

// Rust: BlockClass.
#[derive(Clone, Copy)]
pub enum BlockClass {
    Edge,
    Interior,
    Gap,
    Other,
}

// The number of a class: C lends the work slice as f64, and the classes stand in it.
impl From<BlockClass> for f64 {
    fn from(c: BlockClass) -> f64
        ensures { result ≡ code_of c }
    {
        match c {
            BlockClass::Edge => 0.0,
            BlockClass::Interior => 1.0,
            BlockClass::Gap => 2.0,
            BlockClass::Other => 3.0,
        }
    }
}

// Whether block b has the class c, in a slice that holds the number of each block's class.
pub fn is_class(row: &[f64], b: usize, c: BlockClass) -> bool
    requires { b < length row.now }
    ensures { result ≡ eq (get_or row.now b nan) (code_of c) }
{
    row[b] == f64::from(c)
}
