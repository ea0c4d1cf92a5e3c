//! What a run is between two rows of its script: which entries are made and due, the homes, the copies that are there, the names of
//! arrays, the tasks that are done with their world, the elements that moved, and the text so far. `specs/Rows.antt` says when a
//! state is at a row; the lemmas stand under `proofs/`, a file for each noun.
#![tactic(auto)]
