// The peg register: definitions and theorems, no running code. A function here does nothing: its contract is a theorem.
#![tactic(auto)]

ghost use Rattle.pegs.specs.Claim.{NamesTheorem};
ghost use Rattle.pegs.specs.Pairs.{Pairs};
ghost use Rattle.pegs.specs.QueriesClaim.{RegionTheorem, NearestTheorem};
ghost use Rattle.pegs.specs.QueryPairs.{QueryPairs};

// The register's names are exactly those whose last taken operation is a set or a move, each at that one's place, in byte order, none twice.
pub fn names_are_given()
    ensures { NamesTheorem }
{}

// Instances of the register's rules: the order of names, which payloads are operations, and the numbers that they get.
pub fn pairs()
    ensures { Pairs }
{}

// The answer on a region holds exactly the pegs of the register that lie inside, in byte order of name, and is a register itself.
pub fn regions_are_registers()
    ensures { RegionTheorem }
{}

// The nearest peg is in the register, none is nearer, an equally near one has a larger name; there is none exactly in the empty register.
pub fn nearest_is_least()
    ensures { NearestTheorem }
{}

// Instances of the rules for pegs in the plane: edges, the order of refusals, the largest distances, ties.
pub fn query_pairs()
    ensures { QueryPairs }
{}
