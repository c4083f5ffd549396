//! The first defect of a head, as functions of its lines.
ghost use Rattle.head_laws.specs.HeadDefects.{HeadDefectsAre};
ghost use Rattle.head_laws.specs.SetupDefects.{SetupDefectsAre};
ghost use Rattle.head_laws.specs.TailDefects.{TailDefectsAre};

/// A head has a first defect up to its last sum exactly where a function of the lines finds it, with its line and its kind.
pub fn head_defects_law()
    ensures { HeadDefectsAre }
{}

/// The setups behind a head have a first defect exactly where a function of the lines finds it, with its line and its kind.
pub fn setup_defects_law()
    ensures { SetupDefectsAre }
{}

/// The derivations behind a head have a first defect exactly where a function of the lines finds it, with its line and its kind.
pub fn tail_defects_law()
    ensures { TailDefectsAre }
{}
