//! That no plan depends on labels.
ghost use Rattle.plant_labels.specs.Bare.{LabelLaw};
ghost use Rattle.plant_labels.specs.Clock.{ClockLaw};

/// Does nothing: its clause is a law. Plants that are the same but for labels, colours and calendars have the same plans, which earn
/// the same.
pub fn label_law()
    ensures { LabelLaw }
{}

/// Does nothing: its clause is a law. A calendar that begins at a time of a plant shows the same moments from there on.
pub fn clock_law()
    ensures { ClockLaw }
{}
