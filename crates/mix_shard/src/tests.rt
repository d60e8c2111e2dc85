// What no proof sees: that calls succeed and answer as they are owed, in the laboratory suite and over a rack in memory.
// Expected tags are another program's.
mod claims;
mod failing_calls;
mod order;
mod packets;
mod peeling;
mod setting;
mod tales;
