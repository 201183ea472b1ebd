// No code: the demands, as theorems about streams of calls. The statements stand in specs/, each with its proof behind it in proofs/.
#![tactic(auto)]
