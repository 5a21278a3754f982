// The law of compiled bouquets. It has no body: its clause speaks of the definitions alone.
ghost use Rattle.cost_model.specs.Costing.{IsCosting};
ghost use Rattle.bouquet_type.specs.Trees.{BouquetTree};
ghost use Rattle.bouquet_type.specs.Compiled.{IsCompiled};
ghost use Rattle.bouquet_type.specs.Sound.{IsSound};

/// The law of soundness: every compiled bouquet is sound.
pub fn compiled_bouquets_are_sound()
    ensures { (bouquet : BouquetTree) → IsCosting bouquet.costing →
        IsCompiled bouquet → IsSound bouquet }
{}
