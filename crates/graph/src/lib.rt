// The theory of yards: which points are joined, what parts them, forests, groups and classes.
//
// Each function's contract is a law about the definitions in `specs/`, and the function gives nothing else.
#![tactic(auto)]

ghost use Rattle.graph.specs.Laws.{JoinedLaws, OneTrackMore, Decided, ByEnds, PairLaws, ForestLaws, OneAnswer, GroupLaws};
ghost use Rattle.graph.specs.Worked.{WorkedYards};

// Joined is an equivalence, and grows with the open tracks; what one more track joins.
pub fn joining_laws()
    ensures joined { JoinedLaws }
    ensures more { OneTrackMore }
{}

// Each of the relations is decided by a test that computes.
pub fn deciding_laws()
    ensures { Decided }
{}

// Bridges and cut pairs by the ends of one track, and the classes that cut pairs make.
pub fn parting_laws()
    ensures ends { ByEnds }
    ensures pairs { PairLaws }
{}

// The forest has no cycle, and joins what the yard does.
pub fn forest_laws()
    ensures { ForestLaws }
{}

// The groups have one lowest point each, and every count has one value.
pub fn counting_laws()
    ensures groups { GroupLaws }
    ensures one { OneAnswer }
{}

// The bridges and the classes of five small yards.
pub fn worked_yards()
    ensures { WorkedYards }
{}
