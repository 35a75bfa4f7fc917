// No code: proofs/Promises.antt has what the product promises of its definitions, and beside it are the laws of edits and runs that it cites.
#![tactic(auto)]
