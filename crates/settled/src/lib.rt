// No code: proofs/ has a theorem for each public function, that its contract settles the reply and every lent byte.
#![tactic(auto)]
