//! The domain of the problems that are made.

/// A truck that drives between places, and loads and unloads packages.
pub const TRANSPORT: &[u8] = b"\
    (defdomain transport (\n\
    (:operator (!drive ?a ?b) ((truck ?a)) ((truck ?a)) ((truck ?b)) 2)\n\
    (:operator (!load ?p ?a) ((truck ?a) (at ?p ?a)) ((at ?p ?a)) ((in ?p)))\n\
    (:operator (!unload ?p ?a) ((truck ?a) (in ?p)) ((in ?p)) ((at ?p ?a)))\n\
    (:method (go ?b) here ((truck ?b)) () away ((truck ?a)) ((!drive ?a ?b)))\n\
    (:method (deliver ?p ?b) done ((at ?p ?b)) () move ((at ?p ?a)) ((go ?a) (!load ?p ?a) (go ?b) (!unload ?p ?b)))\n\
    (:method (all) next ((goal ?p ?b) (not (at ?p ?b))) ((deliver ?p ?b) (all)) done () ())\n\
    ))\n";
