// Requests and answers as words, lists of them, and runs over lists: the definition, in specs/ from Layout.antt and Run.antt down.
// Demand 3 of a run over words stands there too.
#![tactic(auto)]
