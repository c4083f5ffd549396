//! The law of relaxations.
ghost use Rattle.plan_images.specs.Law.{CapsAreFloored, ChoicesSettle, ClaimsAreBorne, ClaimsAreTold, DerivationsAreJudged, DerivationsExtend, DerivationsKeep};
ghost use Rattle.plan_images.specs.Law.{ExtensionsCompose, NoneIsLost, PartsRelax, RowsExtend, RowsSettle, SetupsAreJudged, SetupsRelax, SumsExtend, TreesCap};

/// A relaxation of plans is a program in which each of them has a point, its image: lawful, and worth at least what the plan earns.
/// These are its laws; of points that are no images they say nothing.
pub fn plans_have_images()
    // The program of a plant, or of a part of its choices, is a relaxation of the plans that it admits.
    ensures parts { PartsRelax }

    // Sums extend a program, and so do derivations; rows that every image keeps and domains in which it lies leave a relaxation one;
    // extensions compose.
    ensures sums { SumsExtend }
    ensures derivations { DerivationsExtend }
    ensures rows { RowsExtend }
    ensures compose { ExtensionsCompose }

    // With the setups of different units a program is one of the plans alone: points that are no images may be worth more there. What a
    // point is worth that is alone in a box is said by the program without the setups, which judges its first values.
    ensures setups { SetupsRelax }
    ensures kept { DerivationsKeep }
    ensures judged { SetupsAreJudged }
    ensures judged_on { DerivationsAreJudged }

    // Cuts and splits lose no image of a plan that earns more than their floors, so the cap of a proof allows what each plan earns, also
    // where plans that earn little are let go.
    ensures lost { NoneIsLost }
    ensures settled { RowsSettle }
    ensures settled_by { ChoicesSettle }
    ensures caps { TreesCap }
    ensures floored { CapsAreFloored }

    // So what a claim says under such a cap holds of all plans, and so does what it says of all points.
    ensures borne { ClaimsAreBorne }
    ensures told { ClaimsAreTold }
{}
