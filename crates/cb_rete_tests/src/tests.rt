mod building;
mod changing;
mod coming_back;
mod drawn;
mod probes;
mod rows;
