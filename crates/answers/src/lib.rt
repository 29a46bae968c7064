// What is promised of the code's own answers: one answer and one buffer content for every input, demands 2 and 3, 01's listing. There is no code here.
#![tactic(auto)]
