// What no proof sees: that blocks, answers and bodies are those of another program, and that calls succeed where memory
// is ample, at the largest size too.
mod fixtures;
mod largest;
mod made_elsewhere;
mod refusals;
mod three_nodes;
