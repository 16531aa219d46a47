//! What holds of the data of classes, for every caller.
ghost use Rattle.std.specs.Prelude.{◌≡◌};
ghost use Rattle.std.specs.Bool.{Decides};
ghost use Rattle.peephole_analysis.specs.contracts.analysis.ClassDataPartialEq.TheImpl as class_data_eq;
ghost use Rattle.peephole_analysis.specs.declared.analysis.ClassData.{ClassData};

/// The data of two classes compare equal, by `==`, exactly where they are the same.
pub fn equal_class_data()
    ensures { (c d : ClassData) → Decides (class_data_eq.ghosts.eq c d) (c ≡ d) }
{}
