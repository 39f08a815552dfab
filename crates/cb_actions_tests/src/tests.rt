mod carrying;
mod rows;
