// The links and the edges between so many nodes, with the indexes of them that there are.
ghost use Rattle.std.specs.Prelude.{IfSome};
ghost use Rattle.std.proofs.Props.{props};
ghost use Rattle.edge_indexes.specs.Indexes.{Started, Indexed};
ghost use Rattle.links.specs.Links.{Callers};
ghost use Rattle.refinement.specs.Refining.{Sound};

use edge_indexes::IncomingIndex;

#[derive(Clone, Copy)]
pub struct Net<'a, 't> {
    pub links: &'a [u32],
    pub edges: &'a [u32],
    pub nodes: usize,
    pub callers: Option<&'t [u32]>,
    pub firsts: Option<&'t [u32]>,
    pub incoming: Option<IncomingIndex<'a>>,
    pub ghost sound: { Sound nodes links.now edges.now },
    pub ghost called: { IfSome callers (λ table. Callers links.now table.now) } by { Prim.hlevel props },
    pub ghost started: { IfSome firsts (λ table. Started edges.now table.now) } by { Prim.hlevel props },
    pub ghost indexed: { IfSome incoming (λ index. Indexed edges.now index.heads.now index.nexts.now) } by { Prim.hlevel props },
}
