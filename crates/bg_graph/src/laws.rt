//! What holds of every answer about a graph.
ghost use Rattle.std.specs.Prelude.{◌≡◌, ◌<◌, ℕ, List, length};
ghost use Rattle.bg_graph.specs.Graphs.{Graph, IsAcyclic, IsFirstOnCycle, IsRanking, Reaches};

/// Where each edge goes to a smaller rank, no node reaches itself.
pub fn ranks_mean_no_cycle()
    ensures { (g : Graph) (ranks : List ℕ) → IsRanking g ranks → IsAcyclic g }
{}

/// No graph has both ranks and a node that reaches itself.
pub fn answers_exclude_each_other()
    ensures { (g : Graph) (ranks : List ℕ) (f : ℕ) → IsRanking g ranks → IsFirstOnCycle g f → ⊥ }
{}

/// The first node that reaches itself is one alone.
pub fn the_first_is_one()
    ensures { (g : Graph) (e f : ℕ) → IsFirstOnCycle g e → IsFirstOnCycle g f → e ≡ f }
{}

/// What reaches a node is a node of the graph.
pub fn what_reaches_is_a_node()
    ensures { (g : Graph) (f t : ℕ) → Reaches g f t → f < length g }
{}
