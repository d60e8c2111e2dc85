// What no proof sees: that lines and texts come out as meant, and that whole scripts answer as they are owed.
mod ample_memory;
mod calls;
mod looks;
mod ntru_node;
mod packets;
mod storms;
mod there_and_back;
mod whole_scripts;
