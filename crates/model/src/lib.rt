// What is promised: every rule of document 01 stands in specs/, their laws in proofs/. No code runs here.
#![tactic(auto)]
