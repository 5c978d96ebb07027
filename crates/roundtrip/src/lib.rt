// No code: proofs/RoundTrip.antt joins the contracts of Read and of Write.
#![tactic(auto)]
