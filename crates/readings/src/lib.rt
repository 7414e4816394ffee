// Document 01's bench readings, computed from the definitions. All of it stands in specs/.
#![tactic(auto)]
