// The theory of balanced labels, for every kind of labels.
//
// Each function's contract is a law about the definitions in `specs/`, and the function gives nothing else.
#![tactic(auto)]

ghost use Rattle.circulation.specs.Laws.{BalanceLaws, TellingLaws, LabellingLaws, UnitLaws};

use label::Label;

// What balanced labels carry: zero on bridges, equal or opposite labels on cut pairs.
pub fn balance_laws<K: Label>()
    ensures { BalanceLaws K.group }
{}

// Other tracks can be told by labels.
pub fn telling_laws<K: Label>()
    ensures { TellingLaws K.group }
{}

// The draws determine one labelling.
pub fn labelling_laws<K: Label>()
    ensures { LabellingLaws K.group }
{}

// Words of one bit each tell all tracks.
pub fn unit_laws()
    ensures { UnitLaws }
{}
