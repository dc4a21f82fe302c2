mod scan;
mod silent;
